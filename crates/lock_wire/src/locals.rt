ghost use Rattle.std.specs.Prelude.{◌≡◌, ◌<◌, ◌==◌, if◌then◌else◌, length, slice_set};
ghost use Rattle.lock_wire.specs.Parts.{locals_of};
ghost use Rattle.lock_wire.specs.Machine.{with_cell};
ghost use Rattle.lock_wire.specs.declared.local.Local.TheVariants.{Free};

use crate::Local;
use mdc_types::NodeId;
use std::marker::Model;

// The local states of all nodes on all resources.
#[derive(Drop)]
pub struct Locals {
    rows: [[Local; 21]; 16],
}

impl Model for Locals {
    ghost use Rattle.std.specs.Prelude.{List};
    ghost use Rattle.lock_wire.specs.declared.local.Local.{Local};

    ghost Value = { List (List Local) };

    ghost view = { λ l. l.rows };
}

fn put(row: &mut [Local; 21], res: usize, state: Local)
    requires { res < 21 }
    ensures row { row.new ≡ slice_set row.old res state }
    ensures resources { length row.old ≡ 21 }
{
    row[res] = state;
}

impl Locals {
    // All are free.
    pub fn new() -> Locals
        ensures { locals_of result ≡ (λ n r. Free) }
    {
        Locals {
            rows: [[Local::Free; 21]; 16],
        }
    }

    pub fn get(&self, n: NodeId, res: usize) -> Local
        requires node { n < 16 }
        requires res { res < 21 }
        ensures { result ≡ locals_of self.now n res }
    {
        self.rows[n as usize][res]
    }

    pub fn set(&mut self, n: NodeId, res: usize, state: Local)
        requires node { n < 16 }
        requires res { res < 21 }
        ensures { locals_of self.new ≡ with_cell (locals_of self.old) n res state }
    {
        put(&mut self.rows[n as usize], res, state);
    }

    // The node's are free.
    pub fn clear(&mut self, n: NodeId)
        requires { n < 16 }
        ensures { locals_of self.new ≡ (λ m r. if m == n then Free else locals_of self.old m r) }
    {
        self.rows[n as usize] = [Local::Free; 21];
    }
}
