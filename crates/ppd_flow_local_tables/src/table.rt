ghost use Rattle.std.specs.Prelude.{◌≡◌, ◌<◌, ◌≤◌, ◌^◌, List, length, take, IfOk, OnOk};
ghost use Rattle.ppd_ast.specs.declared.plan.Plan.{Plan as ThePlan};
ghost use Rattle.ppd_ast.specs.declared.program.Program.{Program as TheProgram};
ghost use Rattle.ppd_model.specs.declared.flow.Item.{Item as AnItem};
ghost use Rattle.ppd_graph.specs.Control.{last_test as last_test_among};
ghost use Rattle.ppd_graph.specs.Locals.{leaf_at as leaf_among, scan};
ghost use Rattle.ppd_flow_local_tables.specs.Tables.{IsLastWrite, IsTableOf, after_of as after_by, begun_in as begun_by, from_of as from_by, point_at as point_by, since as since_by, writer_of as writer_by};

use crate::build::Building;
use crate::calls::Code;
use crate::point::Point;
use crate::rows::Rows;
use ppd_ast::{Memory, Plan, Program};
use ppd_graph::{LastTest, LeafCall, Writer};
use ppd_model::Item;
use std::alloc::Global;

/// The last write of a local cell, and the loops since that may have written it too, by the numbers of their
/// intervals, the oldest first.
#[derive(Clone, Copy)]
pub struct LastWrite<'a> {
    pub writer: Writer,
    pub loops: &'a [u32],
}

/// What lies before each place of an interval's items: the last write of each local cell, the latest test of each
/// statement, and the call whose activation goes on. It does not keep the items.
#[derive(Drop)]
pub struct LocalTable {
    pub(crate) points: Vec<Point>,
    pub(crate) tests: Rows<bool>,
    pub(crate) writes: Rows<Writer>,
    pub(crate) loops: Rows<u32>,
}

/// `Memory` where so many items have no 32-bit numbers.
fn fits(count: usize) -> Result<(), Memory>
    ensures { OnOk result (count < 2 ^ 32) }
{
    if count > u32::MAX as usize {
        return Err(Memory);
    }
    Ok(())
}

/// The item from which a frame's activation goes on, if it began among the items.
fn begun_in(frame: u8, point: Point) -> Option<u32>
    ensures { result ≡ begun_by frame point }
{
    if frame == 1 { point.begun } else { None }
}

/// The place from which an activation's tests are its own.
fn after_of(begun: Option<u32>) -> usize
    ensures { result ≡ after_by begun }
{
    match begun {
        Some(item) => item as usize + 1,
        None => 0,
    }
}

/// The place from which an activation's writes are its own.
fn from_of(begun: Option<u32>) -> usize
    ensures { result ≡ from_by begun }
{
    match begun {
        Some(item) => item as usize,
        None => 0,
    }
}

fn writer_of(write: Option<(u32, Writer)>, begun: Option<u32>) -> Writer
    ensures { result ≡ writer_by write begun }
{
    match (write, begun) {
        (Some((_, writer)), _) => writer,
        (None, Some(_)) => Writer::Fresh,
        (None, None) => Writer::Before,
    }
}

/// The place from which loops may have written a cell after its last write.
fn since(write: Option<(u32, Writer)>, begun: Option<u32>) -> usize
    ensures { result ≡ since_by write begun }
{
    match write {
        Some((item, _)) => item as usize,
        None => from_of(begun),
    }
}

impl LocalTable {
    /// The table of these items, in the code of a program under a plan. `Memory` is want of memory, also for items
    /// that have no 32-bit numbers.
    pub fn new(
        alloc: Global,
        program: &Program,
        plan: &Plan,
        items: &[Item],
    ) -> Result<LocalTable, Memory>
        ensures { IfOk result (IsTableOf program.now plan.now items.now) }
    {
        fits(items.len())?;
        let code = Code { program, plan };
        let mut building = Building::new(alloc)?;
        for item in items {
            building.item(&code, item)?;
        }
        Ok(building.table)
    }

    fn point_at(&self, place: usize) -> Point
        ensures { result ≡ point_by self.now place }
    {
        match self.points.get(place) {
            Some(point) => *point,
            None => Point {
                leaf: None,
                begun: None,
            },
        }
    }

    /// The call whose activation goes on without an interval of its own before this place.
    pub fn leaf_at(&self, place: usize) -> Option<LeafCall>
        ensures { (program : TheProgram) (plan : ThePlan) (items : List AnItem) → IsTableOf program plan items self.now
            → place ≤ length items → result ≡ leaf_among program plan (take place items) }
    {
        self.point_at(place).leaf
    }

    /// The latest test of a statement before this place, in the activation of a frame.
    pub fn last_test(&self, frame: u8, stmt: u32, place: usize) -> Option<LastTest>
        ensures { (program : TheProgram) (plan : ThePlan) (items : List AnItem) → IsTableOf program plan items self.now
            → place ≤ length items → result ≡ last_test_among program plan frame stmt (take place items) }
    {
        let from = after_of(begun_in(frame, self.point_at(place)));
        match self.tests.last_between((0, stmt), from, place) {
            Some((item, passed)) => Some(LastTest { item, passed }),
            None => None,
        }
    }

    /// The last write of a local cell of a frame before this place.
    pub fn last_write(&self, frame: u8, cell: u16, place: usize) -> LastWrite<'_>
        ensures { (program : TheProgram) (plan : ThePlan) (items : List AnItem) → IsTableOf program plan items self.now
            → place ≤ length items → IsLastWrite (scan program plan frame cell (take place items)) result }
    {
        let begun = begun_in(frame, self.point_at(place));
        let key = (frame, cell as u32);
        let write = self.writes.last_between(key, from_of(begun), place);
        LastWrite {
            writer: writer_of(write, begun),
            loops: self.loops.values_between(key, since(write, begun), place),
        }
    }
}
