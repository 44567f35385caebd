// What the battery's cases are made of: a case's head and parameters, the marks in the tables that it lends, and how the tables and
// the plan call's answer are shown in its line.
#![tactic(auto)]

pub mod answer;
pub mod head;
pub mod input;
pub mod parameters;
pub mod record;
pub mod table;

use std::fmt;
use std::fmt::{Display, Formatter, Write};

// A case that can't be run: its head or a part of it is cut off or wrong, or it asks for more than there is room for.
#[derive(Clone, Copy, Debug, PartialEq, Eq)]
pub struct BadCase;

impl Display for BadCase {
    fn fmt<W: Write>(&self, f: &mut Formatter<W>) -> fmt::Result {
        f.write_str("bad case")
    }
}
