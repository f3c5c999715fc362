//! What is recorded of the steps of a run.
ghost use Rattle.std.specs.Prelude.{◌≡◌, ◌<◌, [], OnOk};
ghost use Rattle.flow_graph.specs.Flows.{IsHead};
ghost use Rattle.machine.specs.Kept.{pure_of};
ghost use Rattle.tracer.specs.Recording.{HasRegisters, HasVectors, Records, Shows};

use flow_graph::Graph;
use lane_views::Bytes32;
use machine::State;
use outcomes::Memory;
use std::alloc::Global;

/// A visit of a head: how many steps were done before it, its place, and what the registers and
/// vectors held before the step there.
#[derive(Clone, Copy, Debug, PartialEq, Eq)]
pub struct Visit {
    pub step: u64,
    pub place: u32,
    pub regs: [u64; 16],
    pub vecs: [Bytes32; 16],
}

/// The places and visits of the steps so far.
#[derive(Drop)]
pub(crate) struct Record {
    pub places: Vec<u32>,
    pub visits: Vec<Visit>,
}

impl Record {
    /// No steps.
    pub fn new(alloc: Global) -> Record
        ensures places { result.places.items ≡ [] }
        ensures visits { result.visits.items ≡ [] }
    {
        Record {
            places: Vec::new(alloc),
            visits: Vec::new(alloc),
        }
    }

    /// One step more, which begins in this state behind so many steps.
    pub fn add(&mut self, graph: &Graph, state: &State, step: u64) -> Result<(), Memory>
        ensures { OnOk result (Records graph.now (pure_of state.now) step self.old self.new) }
    {
        let place = state.place();
        self.places.push(place)?;
        if graph.is_head(place) {
            self.visits.push(visit_of(state, step))?;
        }
        Ok(())
    }
}

/// The visit that a step in this state is, behind so many steps.
fn visit_of(state: &State, step: u64) -> Visit
    ensures { Shows (pure_of state.now) step result }
{
    Visit {
        step,
        place: state.place(),
        regs: registers(state),
        vecs: vectors(state),
    }
}

/// What the general registers hold.
fn registers(state: &State) -> [u64; 16]
    ensures { HasRegisters state.now.regs result }
{
    let mut regs = [0; 16];
    for n in 0..16u8 {
        regs[n as usize] = state.reg(n);
    }
    regs
}

/// What the general registers held at the entry.
pub(crate) fn entry_registers(state: &State) -> [u64; 16]
    ensures { HasRegisters state.now.entry result }
{
    let mut regs = [0; 16];
    for n in 0..16u8 {
        regs[n as usize] = state.entry(n);
    }
    regs
}

/// What the vector registers hold.
fn vectors(state: &State) -> [Bytes32; 16]
    ensures { HasVectors state.now.vecs result }
{
    let mut vecs = [Bytes32 { bytes: [0; 32] }; 16];
    for n in 0..16u8 {
        vecs[n as usize] = *state.vec(n);
    }
    vecs
}
