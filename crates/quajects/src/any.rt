//! Each of the kernel's quajects.
ghost use Rattle.std.specs.Prelude.{◌≡◌, ℕ, List, [], ◌++◌, ◌∷◌, length};
ghost use Rattle.quajects.specs.Lines.{counted};

use crate::piping::Pump;
use crate::ports::Port;
use crate::switching::Switch;
use crate::terminal::CookedTty;
use crate::world::Queues;
use claim_queue::QueueEnd;
use proc_chain::{Quaject, Ran};

/// A quaject of the kernel. A chain has one.
#[derive(Drop)]
pub enum AnyQuaject {
    Cooked(CookedTty),
    Pump(Pump),
    Switch(Switch),
}

/// The ends of a quaject, in the order of its `new`, followed by None: those of small queues, and those of large.
pub type Ends = ([Option<QueueEnd<64>>; 6], [Option<QueueEnd<256>>; 2]);

/// The ends of a quaject with the index of each end's queue.
pub type Ports = ([Option<Port<64>>; 6], [Option<Port<256>>; 2]);

impl AnyQuaject {
    ghost use Rattle.quajects.specs.Anys.{EndsOf, notes_of, all_taken, all_puts, held_of};

    /// How many notes were run, modulo 2^64.
    pub fn notes(&self) -> u64
        ensures { result ≡ notes_of self.now }
    {
        match self {
            AnyQuaject::Cooked(tty) => tty.notes(),
            AnyQuaject::Pump(pump) => pump.notes(),
            AnyQuaject::Switch(switch) => switch.notes(),
        }
    }

    /// How many items were taken, modulo 2^64.
    pub fn taken(&self) -> u64
        ensures { result ≡ counted (all_taken self.now) }
    {
        match self {
            AnyQuaject::Cooked(tty) => tty.taken(),
            AnyQuaject::Pump(pump) => pump.taken(),
            AnyQuaject::Switch(switch) => switch.taken(),
        }
    }

    /// How many items were put, modulo 2^64; for a cooked tty, in its line queue and in its screen queue together.
    pub fn put(&self) -> u64
        ensures { result ≡ counted (all_puts self.now) }
    {
        match self {
            AnyQuaject::Cooked(tty) => tty.put(),
            AnyQuaject::Pump(pump) => pump.put(),
            AnyQuaject::Switch(switch) => switch.put(),
        }
    }

    /// How many items are held.
    pub fn held(&self) -> usize
        ensures { result ≡ length (held_of self.now) }
    {
        match self {
            AnyQuaject::Cooked(tty) => tty.held(),
            AnyQuaject::Pump(pump) => pump.held(),
            AnyQuaject::Switch(switch) => switch.held(),
        }
    }

    /// Gives the ends away, in the order of `new`.
    pub fn into_ends(self) -> Ends
        ensures { EndsOf self result }
    {
        match self {
            AnyQuaject::Cooked(tty) => {
                let (raw, line, screen) = tty.into_ends();
                (
                    [Some(raw), None, None, None, None, None],
                    [Some(line), Some(screen)],
                )
            }
            AnyQuaject::Pump(pump) => {
                let (source, target) = pump.into_ends();
                (
                    [Some(source), Some(target), None, None, None, None],
                    [None, None],
                )
            }
            AnyQuaject::Switch(switch) => (switch.into_ends(), [None, None]),
        }
    }
}

impl AnyQuaject {
    ghost use Rattle.quajects.specs.Anys.{PortsOf};

    /// Gives the ends away with the indexes of their queues, in the order of `new`.
    pub fn into_ports(self) -> Ports
        ensures { PortsOf self result }
    {
        match self {
            AnyQuaject::Cooked(tty) => {
                let (raw, line, screen) = tty.into_ports();
                (
                    [Some(raw), None, None, None, None, None],
                    [Some(line), Some(screen)],
                )
            }
            AnyQuaject::Pump(pump) => {
                let (source, target) = pump.into_ports();
                (
                    [Some(source), Some(target), None, None, None, None],
                    [None, None],
                )
            }
            AnyQuaject::Switch(switch) => (switch.into_ports(), [None, None]),
        }
    }
}

impl Quaject for AnyQuaject {
    ghost use Rattle.quajects.specs.Anys.{MadeOf, Fits, RanAny};

    type World = Queues;

    ghost made_by = { MadeOf };

    ghost fits = { Fits };

    /// The run of a note, by its kind.
    fn run(&mut self, world: &Queues, note: u16) -> Ran
        requires { Fits world.now self.old }
        ensures fits { Fits world.now self.new }
        ensures made { (first : AnyQuaject) (notes : List ℕ)
            → MadeOf first self.old notes → MadeOf first self.new (notes ++ note ∷ []) }
        ensures ran { RanAny self.old self.new result }
    {
        match self {
            AnyQuaject::Cooked(tty) => tty.run(world, note),
            AnyQuaject::Pump(pump) => pump.run(world, note),
            AnyQuaject::Switch(switch) => switch.run(world, note),
        }
    }
}
