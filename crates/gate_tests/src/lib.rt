// A gate and a source that the libraries do not know, as another author would write them.
#![tactic(auto)]

ghost use Rattle.std.specs.Prelude.{◌≡◌, ◌<◌, ◌≤◌, [], ◌∷◌, All, IfSome, IsNone, ◌↔◌};
ghost use Rattle.source.specs.Facts.{Sound};
ghost use Rattle.source.specs.Rows.{work_of, allowed_of, Gives, Passes};
ghost use Rattle.source.proofs.Gates.{list_sound, list_taken, list_ticked};
ghost use Rattle.gate_tests.specs.Stores.{over, full, stores, Fit, in_order, alike};
ghost use Rattle.gate_tests.specs.Storing.{stores_owe, alike_sound};
ghost use Rattle.std.proofs.Common.{arith};

use source::{Gate, LONGEST, MOST_PARTS, Source};
use std::marker::Model;

// A store of units: how many it had at first, and how many are left.
#[derive(Clone, Copy)]
pub struct Store {
    pub size: u32,
    pub left: u32,
}

// How many stores a reserve has.
pub const STORES: u32 = 2;

// A gate of two parts, each a store that is never filled up again, seen as its stores. Two fields and no array, since a method
// changes the one or the other.
#[derive(Drop)]
pub struct Reserve {
    first: Store,
    second: Store,
    ghost fit: { All Fit (first ∷ second ∷ []) },
}

impl Model for Reserve {
    ghost use Rattle.gate_tests.specs.Stores.{FitStores};

    ghost Value = { FitStores };

    ghost view = { λ r. record { first = r.first; second = r.second; fit = r.fit } };
}

// The units over that many ticks: none over no tick.
fn over(units: u32, ticks: u32) -> u64
    ensures { result ≡ over units ticks }
{
    if ticks < 1 { 0 } else { u64::from(units) }
}

impl Reserve {
    // Two full stores of these sizes.
    pub fn new(first: u32, second: u32) -> Reserve
        ensures first { result.first ≡ full first }
        ensures second { result.second ≡ full second }
    {
        Reserve {
            first: Store {
                size: first,
                left: first,
            },
            second: Store {
                size: second,
                left: second,
            },
        }
    }
}

impl Source for Reserve {
    ghost work = { λ s. work_of stores (in_order s) };

    ghost allowed = { λ s. allowed_of stores (in_order s) };

    ghost sound = { λ s. list_sound stores stores_owe (in_order s) (omega arith) s.fit };

    fn count(&self) -> u32 {
        STORES
    }

    fn demand(&self, part: u32, ticks: u32) -> Option<u64> {
        if ticks > LONGEST {
            return None;
        }
        match part {
            1 => Some(over(self.first.size, ticks)),
            2 => Some(over(self.second.size, ticks)),
            _ => None,
        }
    }

    fn allowance(&self, part: u32) -> Option<u64> {
        match part {
            1 => Some(u64::from(self.first.left)),
            2 => Some(u64::from(self.second.left)),
            _ => None,
        }
    }
}

impl Gate for Reserve {
    ghost moves = { record {
      takes = λ s k u t. Gives stores (in_order s) k u (in_order t);
      ticks = λ s t. Passes stores (in_order s) (in_order t);
    } };

    ghost driven = { record {
      taken = λ s t k u gives. list_taken stores stores_owe (in_order s) k u (in_order t) s.fit gives;
      ticked = λ s t passes. list_ticked stores stores_owe (in_order s) (in_order t) s.fit passes;
    } };

    fn offer(&mut self, part: u32, units: u64) -> bool {
        if units < 1 {
            return false;
        }
        match part {
            1 => {
                if units > u64::from(self.first.left) {
                    return false;
                }
                self.first.left -= units as u32;
                true
            }
            2 => {
                if units > u64::from(self.second.left) {
                    return false;
                }
                self.second.left -= units as u32;
                true
            }
            _ => false,
        }
    }

    fn tick(&mut self) {}
}

// A source that is no gate: up to 1,000 parts, each of which brings one unit in any window of at least a tick, seen as their number.
#[derive(Drop)]
pub struct Even {
    parts: u32,
    ghost few: { parts ≤ 1000 },
}

impl Model for Even {
    ghost use Rattle.gate_tests.specs.Stores.{FewParts};

    ghost Value = { FewParts };

    ghost view = { λ e. record { parts = e.parts; few = e.few } };
}

impl Even {
    // That many parts, or None above 1,000.
    pub fn new(parts: u32) -> Option<Even>
        ensures none { IsNone result ↔ (1000 < parts) }
        ensures some { IfSome result (λ even. even.parts ≡ parts) }
    {
        // tried as `then`: the prover does not find the fact in the type for a value that a closure makes
        if parts > MOST_PARTS {
            return None;
        }
        Some(Even { parts })
    }
}

impl Source for Even {
    ghost work = { λ s. record { parts = s.parts; demand = alike s.parts } };

    ghost allowed = { λ s. alike s.parts };

    ghost sound = { λ s. alike_sound s.parts s.few };

    fn count(&self) -> u32 {
        self.parts
    }

    fn demand(&self, part: u32, ticks: u32) -> Option<u64> {
        ((1..=self.count()).contains(&part) && ticks <= LONGEST).then(|| over(1, ticks))
    }

    fn allowance(&self, part: u32) -> Option<u64> {
        (1..=self.count()).contains(&part).then_some(1)
    }
}

#[cfg(test)]
mod tests;
