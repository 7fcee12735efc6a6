ghost use Rattle.std.specs.Prelude.{◌≡◌};
ghost use Rattle.contour_core.specs.Endings.{status_of};

use board_reader::{ReadInput, Refusal};
use call_words::PlanError;
use geo_rect::NoMemory;
use io_edge::{ReadEnd, WriteFault};

/// How a call of the program ends, and the number that the process ends with.
#[derive(Clone, Copy, Debug, PartialEq, Eq)]
pub enum Status {
    /// All was read, done and written.
    Done = 0,
    /// The replies that were to be checked are wrong.
    Wrong = 1,
    /// The words make no request.
    BadWords = 2,
    /// The input is too long, or no board text.
    BadInput = 3,
    /// The input could not be read.
    ReadFault = 4,
    /// The output could not be written.
    WriteFault = 5,
    /// There was no memory.
    NoMemory = 6,
}

/// Why a call of the program did not end with `Done`.
#[derive(Clone, Copy)]
pub enum Ending {
    BadWords,
    TooLong,
    Refused(Refusal),
    /// The reply of this number, from 1, is the first that is wrong.
    Wrong(u64),
    ReadFault,
    WriteFault,
    NoMemory,
}

impl Ending {
    /// The status that goes with it.
    pub fn status(self) -> Status
        ensures { result ≡ status_of self }
    {
        match self {
            Ending::BadWords => Status::BadWords,
            Ending::TooLong => Status::BadInput,
            Ending::Refused(_) => Status::BadInput,
            Ending::Wrong(_) => Status::Wrong,
            Ending::ReadFault => Status::ReadFault,
            Ending::WriteFault => Status::WriteFault,
            Ending::NoMemory => Status::NoMemory,
        }
    }
}

impl From<NoMemory> for Ending {
    ghost use Rattle.std.specs.Prelude.{◌≡◌};
    ghost use Rattle.contour_core.specs.declared.endings.Ending.TheVariants.{NoMemory};

    ghost from_gives = { λ _ e. e ≡ NoMemory };

    fn from(_error: NoMemory) -> Ending {
        Ending::NoMemory
    }
}

impl From<WriteFault> for Ending {
    ghost use Rattle.std.specs.Prelude.{◌≡◌};
    ghost use Rattle.contour_core.specs.declared.endings.Ending.TheVariants.{WriteFault};

    ghost from_gives = { λ _ e. e ≡ WriteFault };

    fn from(_error: WriteFault) -> Ending {
        Ending::WriteFault
    }
}

impl From<ReadEnd> for Ending {
    ghost use Rattle.std.specs.Prelude.{◌≡◌};
    ghost use Rattle.contour_core.specs.Endings.{ending_of_reading};

    ghost from_gives = { λ end e. e ≡ ending_of_reading end };

    fn from(end: ReadEnd) -> Ending {
        match end {
            ReadEnd::TooLong => Ending::TooLong,
            ReadEnd::ReadFault => Ending::ReadFault,
            ReadEnd::NoMemory => Ending::NoMemory,
        }
    }
}

impl From<ReadInput> for Ending {
    ghost use Rattle.std.specs.Prelude.{◌≡◌};
    ghost use Rattle.contour_core.specs.Endings.{ending_of_input};

    ghost from_gives = { λ input e. e ≡ ending_of_input input };

    fn from(input: ReadInput) -> Ending {
        match input {
            ReadInput::Refused(refusal) => Ending::Refused(refusal),
            ReadInput::NoMemory => Ending::NoMemory,
        }
    }
}

impl From<Refusal> for Ending {
    ghost use Rattle.std.specs.Prelude.{◌≡◌};
    ghost use Rattle.contour_core.specs.declared.endings.Ending.TheVariants.{Refused};

    ghost from_gives = { λ refusal e. e ≡ Refused refusal };

    fn from(refusal: Refusal) -> Ending {
        Ending::Refused(refusal)
    }
}

impl From<PlanError> for Ending {
    ghost use Rattle.std.specs.Prelude.{◌≡◌};
    ghost use Rattle.contour_core.specs.Endings.{ending_of_plan};

    ghost from_gives = { λ error e. e ≡ ending_of_plan error };

    fn from(error: PlanError) -> Ending {
        match error {
            PlanError::Refused(refusal) => Ending::Refused(refusal),
            PlanError::NoMemory => Ending::NoMemory,
        }
    }
}
