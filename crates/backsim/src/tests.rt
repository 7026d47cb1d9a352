//! Sessions over files, a script and a sink in memory: whose calls fail one after another; whose workers a gate holds or sends away; and what
//! is replied before a script is asked for again.

mod faults;
mod gates;
mod objects;
mod order;
