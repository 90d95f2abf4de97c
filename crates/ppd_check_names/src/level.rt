// What is lowered, and where its statements stand.
ghost use Rattle.ppd_parse.specs.Tree.{IsTable};
ghost use Rattle.std.proofs.Props.{props};

use crate::writer::Site;
use ppd_ast::Place;
use ppd_parse::Node;

/// The nodes of a tree.
#[derive(Clone, Copy)]
pub struct Source<'a> {
    pub nodes: &'a [Node],
    pub ghost table: { IsTable nodes.now } by { Prim.hlevel props },
}

/// The nodes, with where the statements stand that they become.
#[derive(Clone, Copy)]
pub struct Level<'a> {
    pub source: Source<'a>,
    pub site: Site,
}

/// The same for core statements that all have one place.
#[derive(Clone, Copy)]
pub struct Here<'a> {
    pub level: Level<'a>,
    pub place: Place,
}
