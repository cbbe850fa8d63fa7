//! For a future: a way on which it is out, and one on which it is not.
ghost use Rattle.std.specs.Prelude.{◌≡◌, option_map};
ghost use Rattle.refusal_causes.specs.inner.Traced.{carried, either, nowhere, shorter, start, stepped};

use crate::way::{ControlWay, puts_out, takes_in};
use twe_program::Stmt;

/// A way on which the future is out, and one on which it is not, if there are such.
#[derive(Clone, Copy, Debug)]
pub struct OutWays {
    /// On this one it is out.
    pub out: Option<ControlWay>,
    /// On this one it is not.
    pub not_out: Option<ControlWay>,
}

/// The way that goes on by this statement, if there is one.
fn carry(way: Option<ControlWay>, stmt: &Stmt, future: u32) -> Option<ControlWay>
    ensures { result ≡ option_map (carried future stmt.now) way }
{
    match way {
        None => None,
        Some(way) => Some(way.carry(stmt, future)),
    }
}

/// Of two ways the one with fewer places, and the first one if they have as many.
fn shorter(way: Option<ControlWay>, other: Option<ControlWay>) -> Option<ControlWay>
    ensures { result ≡ shorter way other }
{
    match (way, other) {
        (None, other) => other,
        (Some(way), None) => Some(way),
        (Some(way), Some(other)) => {
            if other.places.count < way.places.count {
                Some(other)
            } else {
                Some(way)
            }
        }
    }
}

impl OutWays {
    /// The ways at the start of a body.
    pub fn at_start() -> OutWays
        ensures { result ≡ start }
    {
        OutWays {
            out: None,
            not_out: Some(ControlWay::empty()),
        }
    }

    /// The ways if no path comes.
    pub fn nowhere() -> OutWays
        ensures { result ≡ nowhere }
    {
        OutWays {
            out: None,
            not_out: None,
        }
    }

    /// The shorter ones of these ways and the others.
    pub fn or(self, other: OutWays) -> OutWays
        ensures { result ≡ either self other }
    {
        OutWays {
            out: shorter(self.out, other.out),
            not_out: shorter(self.not_out, other.not_out),
        }
    }

    /// The ways that go on by this statement, or by the entry into a turn of this loop.
    pub fn step(self, stmt: &Stmt, future: u32) -> OutWays
        ensures { result ≡ stepped future stmt.now self }
    {
        let out = carry(self.out, stmt, future);
        let not_out = carry(self.not_out, stmt, future);
        if puts_out(stmt, future) {
            return OutWays {
                out: shorter(out, not_out),
                not_out: None,
            };
        }
        if takes_in(stmt, future) {
            return OutWays {
                out: None,
                not_out: shorter(out, not_out),
            };
        }
        OutWays { out, not_out }
    }
}
