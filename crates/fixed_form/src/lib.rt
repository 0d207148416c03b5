//! The fixed form of a source text: its lines, its statements and its units.
#![tactic(auto)]

mod card;
mod lines;
mod reader;
mod unit_names;
mod words;

pub use card::{columns, is_blank, is_comment_line, push_text};
pub use f77_tree::{List, Name, Place, Refused, SourceFault};
pub use lines::next_line;
pub use reader::{Line, UnitText, read_units, same_source};
pub use unit_names::unit_name;
pub use words::{behind_word, word_run};
