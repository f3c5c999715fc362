//! Lines of an admission, and the draft that they make.
ghost use Rattle.std.specs.Prelude.{◌≡◌, ◌≤◌, length, IfOk, Some, false};
ghost use Rattle.admission_text.specs.ReadingLines as lines;

use admission::{Admission, Expr, Items, Need, RegionLine};
use insn_ops::Output;
use outcomes::Memory;
use std::alloc::Global;

/// The word that begins a line.
#[derive(Clone, Copy, Debug, PartialEq, Eq)]
pub enum Keyword {
    Admit,
    Region,
    Require,
    Apart,
    Scratch,
    Stack,
    Live,
}

/// What a line spells.
#[derive(Drop)]
pub enum Entry {
    /// `admit 1`.
    Header,
    Region(RegionLine),
    Require(Need),
    /// Two regions, by number.
    Apart(u32, u32),
    /// A base and a length.
    Scratch(Expr, Expr),
    Stack(u64),
    Live(Items<Output>),
}

/// The admission that lines have made so far, whether there was a line, and whether one of them was
/// `stack` or `live`.
#[derive(Drop)]
pub struct Draft {
    pub admission: Admission,
    pub headed: bool,
    pub stacked: bool,
    pub lived: bool,
}

impl Draft {
    /// Before the first line.
    pub fn new(alloc: Global) -> Draft
        ensures { result ≡ lines.no_draft }
    {
        Draft {
            admission: Admission {
                regions: Items::new(alloc),
                needs: Items::new(alloc),
                aparts: Items::new(alloc),
                scratch: Items::new(alloc),
                stack: 0,
                live: Items::new(alloc),
            },
            headed: false,
            stacked: false,
            lived: false,
        }
    }

    /// Whether a line is one too many of its kind, or has too many outputs.
    pub fn is_over(&self, entry: &Entry) -> bool
        ensures { result ≡ lines.is_over self.now entry.now }
    {
        match entry {
            Entry::Header | Entry::Stack(_) => false,
            Entry::Region(_) => self.admission.regions.len() >= 8,
            Entry::Require(_) => self.admission.needs.len() >= 32,
            Entry::Apart(_, _) => self.admission.aparts.len() >= 28,
            Entry::Scratch(_, _) => self.admission.scratch.len() >= 4,
            Entry::Live(live) => live.len() >= 17,
        }
    }

    /// The draft with a line more.
    pub fn with_entry(mut self, entry: Entry) -> Result<Draft, Memory>
        ensures { IfOk result (λ d. d ≡ lines.drafted_with self entry) }
    {
        self.headed = true;
        match entry {
            Entry::Header => {}
            Entry::Region(region) => self.admission.regions.push(region)?,
            Entry::Require(need) => self.admission.needs.push(need)?,
            Entry::Apart(first, second) => self.admission.aparts.push((first, second))?,
            Entry::Scratch(base, len) => self.admission.scratch.push((base, len))?,
            Entry::Stack(bytes) => {
                self.admission.stack = bytes;
                self.stacked = true;
            }
            Entry::Live(live) => {
                self.admission.live = live;
                self.lived = true;
            }
        }
        Ok(self)
    }
}
