//! The search for a turn through a rejecting step.

ghost use Rattle.std.specs.Prelude.{◌≡◌, ◌↔◌, ◌+◌, ◌-◌, ◌<◌, ◌≤◌, ℕ, true, false, length, Some, slice_get, slice_index_or, IfOk, OnOk};
ghost use Rattle.loop_acceptance.specs.declared.marks.Mark.TheVariants.{New, Open, Red};
ghost use Rattle.loop_acceptance.specs.internal.Graph.{StepsTo, Rejects, WalksTo, TurnFrom};
ghost use Rattle.loop_acceptance.specs.internal.Product.{IsProduct, nodes_of, edge_rows_of, steps_in, row_edges};
ghost use Rattle.loop_acceptance.specs.internal.Search.{is_open, asked_for, nested_left};
ghost use Rattle.loop_acceptance.specs.internal.Search.{Is, IsNotNew, AreRed, HasReddened};
ghost use Rattle.loop_acceptance.specs.internal.Search.{StepsBy, TurnsTo, LeadsToNoNew, NoneLeadToNew, AreClosed, IsNestedSearch};

use crate::marks::{Mark, Marks};
use crate::product::{Product, Step, node_count, place_count, product_step};
use base_library::NoMemory;
use std::alloc::Global;

/// An open node, and how many places of its steps are left.
#[derive(Clone, Copy)]
pub(crate) struct Frame {
    /// The node.
    pub node: u32,
    /// How many places are left.
    pub left: u32,
}

/// What the search has found.
#[derive(Drop)]
pub(crate) struct Search {
    /// The mark of each node.
    pub marks: Marks,
    /// The open nodes, in the order in which they were met.
    pub frames: Vec<Frame>,
    /// The red nodes, in the order in which they were met.
    pub red: Vec<u32>,
}

impl Search {
    ghost use Rattle.loop_acceptance.specs.internal.Search.{marks_met, red_met, marks_opened, frames_opened};

    /// Makes a node red if it is done. Whether it is open.
    fn meet(&mut self, node: u32) -> Result<bool, NoMemory>
        requires { node < length self.old.marks }
        ensures tells { IfOk result (λ yes. yes ≡ is_open (slice_index_or self.old.marks node New)) }
        ensures marks { OnOk result (self.new.marks ≡ marks_met self.old.marks node) }
        ensures red { OnOk result (self.new.red.items ≡ red_met self.old.marks self.old.red.items node) }
        ensures frames { self.new.frames ≡ self.old.frames }
    {
        let mark = self.marks.get(node);
        if mark.is_done() {
            self.red.push(node)?;
            self.marks.set(node, Mark::Red);
        }
        Ok(mark.is_open())
    }

    /// Opens a node if it is new.
    fn open_node(&mut self, node: u32, places: u32) -> Result<(), NoMemory>
        requires { node < length self.old.marks }
        ensures marks { OnOk result (self.new.marks ≡ marks_opened self.old.marks node) }
        ensures frames { OnOk result (self.new.frames.items ≡ frames_opened self.old.marks self.old.frames.items node places) }
        ensures red { self.new.red ≡ self.old.red }
    {
        if self.marks.get(node).is_new() {
            self.frames.push(Frame { node, left: places })?;
            self.marks.set(node, Mark::Open);
        }
        Ok(())
    }

    /// Meets what the step of a node at a place leads to, if there is one and it is asked for. Whether that
    /// is open.
    fn meet_step(
        &mut self,
        product: &Product,
        node: u32,
        place: u32,
        rejecting_alone: bool,
    ) -> Result<bool, NoMemory>
        requires product { IsProduct product.now }
        requires within { node < nodes_of product.now }
        requires size { length self.old.marks ≡ nodes_of product.now }
        requires red { AreRed self.old.marks self.old.red.items }
        requires seen { LeadsToNoNew (steps_in product.now) self.old.marks node }
        ensures on { OnOk result (HasReddened (StepsBy (steps_in product.now) rejecting_alone node) self.old.marks self.old.red.items
            self.new.marks self.new.red.items) }
        ensures met { IfOk result (λ yes. yes ≡ false → (s : Step) → asked_for rejecting_alone (steps_in product.now node place) ≡ Some s →
            Is self.new.marks Red s.to) }
        ensures found { IfOk result (λ yes. yes ≡ true → (s : Step) × (asked_for rejecting_alone (steps_in product.now node place) ≡ Some s)
            × Is self.old.marks Open s.to) }
        ensures frames { self.new.frames ≡ self.old.frames }
    {
        match chosen_step(product, node, place, rejecting_alone) {
            Some(step) => {
                let is_open = self.meet(step.to)?;
                Ok(is_open)
            }
            None => Ok(false),
        }
    }

    /// Meets what the steps of a node lead to, or its rejecting steps alone. Whether one of these is open;
    /// then the others are left.
    fn meet_steps(
        &mut self,
        product: &Product,
        node: u32,
        rejecting_alone: bool,
    ) -> Result<bool, NoMemory>
        requires product { IsProduct product.now }
        requires within { node < nodes_of product.now }
        requires size { length self.old.marks ≡ nodes_of product.now }
        requires red { AreRed self.old.marks self.old.red.items }
        requires seen { LeadsToNoNew (steps_in product.now) self.old.marks node }
        ensures on { OnOk result (HasReddened (StepsBy (steps_in product.now) rejecting_alone node) self.old.marks self.old.red.items
            self.new.marks self.new.red.items) }
        ensures met { IfOk result (λ yes. yes ≡ false → (q : ℕ) → StepsBy (steps_in product.now) rejecting_alone node q →
            Is self.new.marks Red q) }
        ensures found { IfOk result (λ yes. yes ≡ true → (q : ℕ) × StepsBy (steps_in product.now) rejecting_alone node q
            × Is self.old.marks Open q) }
        ensures frames { self.new.frames ≡ self.old.frames }
    {
        for place in 0..place_count(product, node) {
            if self.meet_step(product, node, place, rejecting_alone)? {
                return Ok(true);
            }
        }
        Ok(false)
    }

    /// Whether a rejecting step of an open node leads to where steps lead to an open node. If not, all that
    /// they lead to is red then.
    fn turns_back(&mut self, product: &Product, node: u32) -> Result<bool, NoMemory>
        requires product { IsProduct product.now }
        requires size { length self.old.marks ≡ nodes_of product.now }
        requires red { AreRed self.old.marks self.old.red.items }
        requires closed { AreClosed (steps_in product.now) self.old.marks self.old.red.items (length self.old.red.items) }
        requires all_seen { NoneLeadToNew (steps_in product.now) self.old.marks }
        requires seen { LeadsToNoNew (steps_in product.now) self.old.marks node }
        requires is_open { Is self.old.marks Open node }
        ensures on { OnOk result (HasReddened (TurnsTo (steps_in product.now) node) self.old.marks self.old.red.items
            self.new.marks self.new.red.items) }
        ensures none { IfOk result (λ yes. yes ≡ false
            → AreClosed (steps_in product.now) self.new.marks self.new.red.items (length self.new.red.items)
            × ((q : ℕ) → Rejects (steps_in product.now) node q → Is self.new.marks Red q)) }
        ensures found { IfOk result (λ yes. yes ≡ true → (q : ℕ) × TurnsTo (steps_in product.now) node q × Is self.old.marks Open q) }
        ensures frames { self.new.frames ≡ self.old.frames }
    {
        let mut place = self.red.len();
        if self.meet_steps(product, node, true)? {
            return Ok(true);
        }
        while place < self.red.len() {
            let next = self.red[place];
            if self.meet_steps(product, next, false)? {
                return Ok(true);
            }
            place += 1;
        }
        Ok(false)
    }

    /// Opens what the step of a node at a place leads to, if there is one and it is new.
    fn open_along(&mut self, product: &Product, node: u32, place: u32) -> Result<(), NoMemory>
        requires product { IsProduct product.now }
        requires within { node < nodes_of product.now }
        requires size { length self.old.marks ≡ nodes_of product.now }
        requires search { IsNestedSearch (steps_in product.now) (nodes_of product.now) self.old.marks self.old.red.items
            self.old.frames.items }
        requires last { (f : Frame) × (slice_get self.old.frames.items (length self.old.frames.items - 1) ≡ Some f) × (f.node ≡ node) }
        ensures search { OnOk result (IsNestedSearch (steps_in product.now) (nodes_of product.now) self.new.marks self.new.red.items
            self.new.frames.items) }
        ensures seen { OnOk result ((s : Step) → steps_in product.now node place ≡ Some s → IsNotNew self.new.marks s.to) }
        ensures stay { OnOk result ((i : ℕ) (f : Frame) → slice_get self.old.frames.items i ≡ Some f
            → slice_get self.new.frames.items i ≡ Some f) }
        ensures left { OnOk result (nested_left (row_edges (edge_rows_of product.now)) self.new.marks self.new.frames.items
            ≤ nested_left (row_edges (edge_rows_of product.now)) self.old.marks self.old.frames.items) }
    {
        if let Some(step) = product_step(product, node, place) {
            let places = place_count(product, step.to);
            self.open_node(step.to, places)?;
        }
        Ok(())
    }

    /// Takes the next step of the last open node.
    fn take_step(&mut self, product: &Product, top: usize) -> Result<(), NoMemory>
        requires product { IsProduct product.now }
        requires search { IsNestedSearch (steps_in product.now) (nodes_of product.now) self.old.marks self.old.red.items
            self.old.frames.items }
        requires last { top + 1 ≡ length self.old.frames.items }
        requires some { (f : Frame) × (slice_get self.old.frames.items top ≡ Some f) × (0 < f.left) }
        ensures search { OnOk result (IsNestedSearch (steps_in product.now) (nodes_of product.now) self.new.marks self.new.red.items
            self.new.frames.items) }
        ensures left { OnOk result (nested_left (row_edges (edge_rows_of product.now)) self.new.marks self.new.frames.items
            < nested_left (row_edges (edge_rows_of product.now)) self.old.marks self.old.frames.items) }
    {
        let frame = self.frames[top];
        let left = frame.left - 1;
        self.open_along(product, frame.node, left)?;
        self.frames[top] = Frame {
            node: frame.node,
            left,
        };
        Ok(())
    }

    /// Leaves the last open node, of which no step is left, if no turn is found. Whether one is.
    fn leave(&mut self, product: &Product, top: usize) -> Result<bool, NoMemory>
        requires product { IsProduct product.now }
        requires search { IsNestedSearch (steps_in product.now) (nodes_of product.now) self.old.marks self.old.red.items
            self.old.frames.items }
        requires last { top + 1 ≡ length self.old.frames.items }
        requires none { (f : Frame) × (slice_get self.old.frames.items top ≡ Some f) × (f.left ≡ 0) }
        ensures search { IfOk result (λ yes. yes ≡ false → IsNestedSearch (steps_in product.now) (nodes_of product.now) self.new.marks
            self.new.red.items self.new.frames.items) }
        ensures left { IfOk result (λ yes. yes ≡ false
            → nested_left (row_edges (edge_rows_of product.now)) self.new.marks self.new.frames.items
            < nested_left (row_edges (edge_rows_of product.now)) self.old.marks self.old.frames.items) }
        ensures found { IfOk result (λ yes. yes ≡ true → TurnFrom (steps_in product.now) 0) }
    {
        let node = self.frames[top].node;
        if self.turns_back(product, node)? {
            return Ok(true);
        }
        self.frames.truncate(top);
        self.marks.set(node, Mark::Done);
        Ok(false)
    }

    /// Takes the next step of the last open node, or leaves the node. Whether a turn is found.
    fn go_on(&mut self, product: &Product) -> Result<bool, NoMemory>
        requires product { IsProduct product.now }
        requires search { IsNestedSearch (steps_in product.now) (nodes_of product.now) self.old.marks self.old.red.items
            self.old.frames.items }
        requires some { 0 < length self.old.frames.items }
        ensures search { IfOk result (λ yes. yes ≡ false → IsNestedSearch (steps_in product.now) (nodes_of product.now) self.new.marks
            self.new.red.items self.new.frames.items) }
        ensures left { IfOk result (λ yes. yes ≡ false
            → nested_left (row_edges (edge_rows_of product.now)) self.new.marks self.new.frames.items
            < nested_left (row_edges (edge_rows_of product.now)) self.old.marks self.old.frames.items) }
        ensures found { IfOk result (λ yes. yes ≡ true → TurnFrom (steps_in product.now) 0) }
    {
        let top = self.frames.len() - 1;
        if self.frames[top].left == 0 {
            return self.leave(product, top);
        }
        self.take_step(product, top)?;
        Ok(false)
    }
}

/// The step of a node at a place, if there is one and it is asked for.
fn chosen_step(product: &Product, node: u32, place: u32, rejecting_alone: bool) -> Option<Step>
    requires product { IsProduct product.now }
    requires within { node < nodes_of product.now }
    ensures { result ≡ asked_for rejecting_alone (steps_in product.now node place) }
{
    match product_step(product, node, place) {
        Some(step) if rejecting_alone && !step.rejecting => None,
        step => step,
    }
}

/// The search that has met the first node alone.
fn begun(alloc: Global, product: &Product) -> Result<Search, NoMemory>
    requires product { IsProduct product.now }
    ensures { IfOk result (λ search. IsNestedSearch (steps_in product.now) (nodes_of product.now) search.marks search.red.items
        search.frames.items) }
{
    let marks = Marks::new(alloc, node_count(product), product.pairing)?;
    let mut search = Search {
        marks,
        frames: Vec::new(alloc),
        red: Vec::new(alloc),
    };
    search.open_node(0, place_count(product, 0))?;
    Ok(search)
}

/// Whether a rejecting step of a node that is reached from the first one lies on a turn.
pub(crate) fn has_turn(alloc: Global, product: &Product) -> Result<bool, NoMemory>
    requires { IsProduct product.now }
    ensures { IfOk result (λ yes. (yes ≡ true) ↔ TurnFrom (steps_in product.now) 0) }
{
    let mut search = begun(alloc, product)?;
    while !search.frames.is_empty() {
        if search.go_on(product)? {
            return Ok(true);
        }
    }
    Ok(false)
}
