//! A way: what a control path carries out from the latest spawn or join of a future on.
ghost use Rattle.std.specs.Prelude.{◌≡◌, []};
ghost use Rattle.cover_flow.specs.Out.{puts_out, takes_in};
ghost use Rattle.refusal_causes.specs.Ways.{shown_at, way_along};
ghost use Rattle.refusal_causes.specs.inner.Traced.{carried, with_place};

use crate::places::KeptPlaces;
use twe_base::Place;
use twe_program::{Stmt, StmtKind};

/// Where a way begins.
#[derive(Clone, Copy, Debug, PartialEq, Eq)]
pub enum Begins {
    /// At the start of the body: the future is not spawned or joined on it.
    Start,
    /// At the latest spawn of the future, which is not joined after it.
    Spawn,
    /// At the latest join of the future, which is not spawned after it.
    Join,
}

/// The places of what a control path carries out, from where it begins.
#[derive(Clone, Copy, Debug)]
pub struct ControlWay {
    /// Where it begins.
    pub begins: Begins,
    /// The places of its statements that have one, and of the loops whose turns it enters, in the order of the path. A
    /// spawn is at the place of its future's name. If it begins at a spawn or a join, the first place is that of it.
    pub places: KeptPlaces,
}

/// The place at which a statement shows, if it has one. An `executeLater` and a spawn show at the future's name.
fn shown_at(stmt: &Stmt) -> Option<Place>
    ensures { result ≡ shown_at stmt.now }
{
    match &stmt.kind {
        StmtKind::SetCell { place, .. } | StmtKind::SetAt { place, .. } => Some(*place),
        StmtKind::While { place, .. } | StmtKind::Print { place, .. } => Some(*place),
        StmtKind::Call { place, .. } | StmtKind::Wait { place, .. } => Some(*place),
        StmtKind::Make { future_place, .. } => Some(*future_place),
        _ => None,
    }
}

/// Whether the statement spawns a task into the future.
pub fn puts_out(stmt: &Stmt, future: u32) -> bool
    ensures { result ≡ puts_out future stmt.now }
{
    match &stmt.kind {
        StmtKind::Make {
            future: into,
            spawned: true,
            ..
        } => *into == future,
        _ => false,
    }
}

/// Whether the statement joins the future.
pub fn takes_in(stmt: &Stmt, future: u32) -> bool
    ensures { result ≡ takes_in future stmt.now }
{
    match &stmt.kind {
        StmtKind::Wait {
            future: of,
            join: true,
            ..
        } => *of == future,
        _ => false,
    }
}

/// The places with that of the statement, if it has one.
fn with_place(places: KeptPlaces, stmt: &Stmt) -> KeptPlaces
    ensures { result ≡ with_place (shown_at stmt.now) places }
{
    match shown_at(stmt) {
        None => places,
        Some(place) => places.with(place),
    }
}

impl ControlWay {
    /// The way of a path that has carried out nothing.
    pub(crate) fn empty() -> ControlWay
        ensures { result ≡ way_along 0 [] }
    {
        ControlWay {
            begins: Begins::Start,
            places: KeptPlaces::none(),
        }
    }

    /// The way of the path that goes on by this statement, or by the entry into a turn of this loop.
    pub(crate) fn carry(self, stmt: &Stmt, future: u32) -> ControlWay
        ensures { result ≡ carried future stmt.now self }
    {
        if puts_out(stmt, future) {
            return ControlWay {
                begins: Begins::Spawn,
                places: with_place(KeptPlaces::none(), stmt),
            };
        }
        if takes_in(stmt, future) {
            return ControlWay {
                begins: Begins::Join,
                places: with_place(KeptPlaces::none(), stmt),
            };
        }
        ControlWay {
            begins: self.begins,
            places: with_place(self.places, stmt),
        }
    }
}
