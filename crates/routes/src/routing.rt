//! The routes that a node keeps: a table that is never empty.
ghost use Rattle.std.specs.Prelude.{◌≤◌, length};
ghost use Rattle.routes.specs.Listed.{listed};

use crate::table::Table;

pub mod keeping;
pub mod several;

/// Up to 15 routes as in a table, and at least one.
#[derive(Clone, Copy)]
pub struct Routes {
    table: Table,
    ghost some: { 1 ≤ length (listed table) },
}
