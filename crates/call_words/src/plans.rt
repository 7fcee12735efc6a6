//! What is done after the commands, found on the board.

ghost use Rattle.std.specs.Prelude.{◌≡◌, ◌<◌, length, map, string_bytes, All, Contains, IfOk, OnOk, IfErr};
ghost use Rattle.geo_rect.specs.declared.ids.NetId.{NetId};
ghost use Rattle.board_parts.specs.Lookup.{net_name};
ghost use Rattle.call_words.specs.declared.plans.PlanError.TheVariants as plan_error;
ghost use Rattle.call_words.specs.Asked.{IsGoodSequel};
ghost use Rattle.call_words.specs.Requests.{sequel_by};
ghost use Rattle.call_words.specs.Trials.{IsSoundSequel, IsSequelFault, IsPlan, IsPlanOf, IsRefusedPlan};

use crate::faults::sequel_fault;
use crate::requests::Sequel;
use crate::subjects::{net_of, refusal_of};
use board_parts::Board;
use board_reader::Refusal;
use geo_rect::{List, NetId, NoMemory};
use std::alloc::Global;

/// What is done in the session that the commands of a board text leave.
#[derive(Drop)]
pub enum Plan {
    /// The net is routed through the others.
    Through { net: NetId, others: List<NetId> },
    /// So many rounds of routing, from 1 to 100.
    Auto(u32),
}

/// Why there is no plan.
#[derive(Clone, Copy)]
pub enum PlanError {
    Refused(Refusal),
    NoMemory,
}

impl From<NoMemory> for PlanError {
    ghost from_gives = { λ _ e. e ≡ plan_error.NoMemory };

    fn from(_error: NoMemory) -> PlanError {
        PlanError::NoMemory
    }
}

/// The nets of these names.
fn nets_of(alloc: Global, board: &Board, names: &[String]) -> Result<List<NetId>, NoMemory>
    requires { All (Contains board.now.parts.net_names) (map string_bytes names.now) }
    ensures names { IfOk result (λ nets. map (net_name board.now.parts) nets ≡ map string_bytes names.now) }
    ensures known { IfOk result (λ nets. All (λ (n : NetId). n.0 < length board.now.parts.net_names) nets) }
{
    let mut nets = List::new(alloc);
    for name in names {
        nets.push(net_of(board, name.as_str()))?;
    }
    Ok(nets)
}

/// The plan of a sequel that breaks no rule.
fn sound_plan(alloc: Global, board: &Board, sequel: Sequel<'_>) -> Result<Plan, NoMemory>
    requires good { IsGoodSequel (sequel_by sequel) }
    requires sound { IsSoundSequel board.now.parts (sequel_by sequel) }
    ensures plan { IfOk result (IsPlan board.now.parts (sequel_by sequel.entry)) }
    ensures known { IfOk result (IsPlanOf board.now.parts) }
{
    match sequel {
        Sequel::Through { net, others } => Ok(Plan::Through {
            net: net_of(board, net),
            others: nets_of(alloc, board, others)?,
        }),
        Sequel::Auto { rounds } => Ok(Plan::Auto(rounds)),
    }
}

/// What is done after the commands, by the numbers of the board, or the first rule that the names of
/// the sequel break, told with line 0. The kinds, in this order: `UnknownName` for a net that the board
/// lacks, `TwiceNamed` for one that is named twice, the net and the others together.
pub fn plan_of(alloc: Global, board: &Board, sequel: Sequel<'_>) -> Result<Plan, PlanError>
    requires { IsGoodSequel (sequel_by sequel) }
    ensures sound { OnOk result (IsSoundSequel board.now.parts (sequel_by sequel.entry)) }
    ensures plan { IfOk result (IsPlan board.now.parts (sequel_by sequel.entry)) }
    ensures known { IfOk result (IsPlanOf board.now.parts) }
    ensures fault { IfErr result (IsRefusedPlan board.now.parts (sequel_by sequel.entry)) }
{
    if let Some(kind) = sequel_fault(board, sequel) {
        return Err(PlanError::Refused(refusal_of(kind)));
    }
    Ok(sound_plan(alloc, board, sequel)?)
}
