ghost use Rattle.std.specs.Prelude.{◌≡◌, ◌<◌, length, IfOk};
ghost use Rattle.board_parts.specs.Commands.{IsCommandOf};
ghost use Rattle.route_law.specs.Kept.{IsState};
ghost use Rattle.route_law.specs.Regular.{IsRegular};
ghost use Rattle.route_law.specs.Steps.{IsStep, nothing_made};
ghost use Rattle.session_core.specs.Adopting.{AreAdopted};

use crate::adopts::{Adopted, Adoption, adopt_conns};
use crate::answers::{Answered, answer};
use crate::planes::ready;
use board_model::{Board, Command, Conn, Made};
use geo_rect::{NetId, NoMemory};
use plane_core::Plane;
use plane_set::PlaneSet;
use route_law::Reply;
use std::alloc::Global;
use std::marker::Model;

/// A board, the connections that are made on it, and planes that stand for both. They are built when
/// a command first needs them.
#[derive(Drop)]
pub struct Session<P: Plane> {
    board: Board,
    made: Made,
    planes: Option<PlaneSet<P>>,
}

impl<P: Plane> Model for Session<P> {
    ghost use Rattle.session_core.specs.Sessions.{Sitting, IsSession};

    ghost Value = { Sitting };

    ghost view = { λ s. record { parts = s.board.parts; lists = s.made.lists; planes = s.planes } };

    ghost invariant = { λ s. IsSession s.board.parts s.made.lists s.planes };
}

impl<P: Plane> Session<P> {
    /// A session of the board, in which nothing is made.
    pub fn start(alloc: Global, board: Board) -> Result<Session<P>, NoMemory>
        ensures board { IfOk result (λ s. s.parts ≡ board.parts) }
        ensures nothing { IfOk result (λ s. s.lists ≡ nothing_made board.parts) }
    {
        let made = Made::none(alloc, &board)?;
        Ok(Session {
            board,
            made,
            planes: None,
        })
    }

    /// The board.
    pub fn board(&self) -> &Board
        ensures { result.now.parts ≡ self.now.parts }
    {
        &self.board
    }

    /// The connections that are made. They are a state of the board, which keeps its rules.
    pub fn made(&self) -> &Made
        ensures lists { result.now.lists ≡ self.now.lists }
        ensures state { IsState self.now.parts self.now.lists }
    {
        &self.made
    }

    /// One step: the reply to the command, and the session in the state to which it leads. What the
    /// command names is in the board. After `NoMemory` the session is gone.
    pub fn apply(self, alloc: Global, c: &Command) -> Result<(Session<P>, Reply), NoMemory>
        requires known { IsCommandOf self.parts c.now }
        ensures step { IfOk result (λ a. IsStep self.parts self.lists c.now a.1 a.0.lists) }
        ensures board { IfOk result (λ a. a.0.parts ≡ self.parts) }
        ensures regular { IfOk result (λ a. IsRegular self.parts a.1) }
    {
        let Session {
            board,
            mut made,
            planes,
        } = self;
        let Answered { planes, reply } = answer(alloc, &board, &mut made, planes, c)?;
        let session = Session {
            board,
            made,
            planes,
        };
        Ok((session, reply))
    }

    /// Appends the connections to those of the net, which is in the board, where each is a walk of it
    /// from what it has to its next pin, over nodes and vias that it may pass, with its true cost, in
    /// the state with those before it appended. Where one is not, nothing changes, and the first is
    /// told. The connections may be any. After `NoMemory` the session is gone.
    pub fn adopt(
        self,
        alloc: Global,
        net: NetId,
        conns: &[Conn],
    ) -> Result<(Session<P>, Adopted), NoMemory>
        requires net { net.0 < length self.parts.net_names }
        ensures adopted { IfOk result (λ a. AreAdopted self.parts self.lists net conns.now a.1 a.0.lists) }
        ensures board { IfOk result (λ a. a.0.parts ≡ self.parts) }
    {
        let Session {
            board,
            mut made,
            planes,
        } = self;
        let planes = ready(alloc, &board, planes)?;
        let Adoption { planes, outcome } = adopt_conns(
            alloc, &board, &mut made, planes, net, conns,
        )?;
        let session = Session {
            board,
            made,
            planes: Some(planes),
        };
        Ok((session, outcome))
    }
}
