// Frontmatter of a script: the shebang, the fences and what stands between them.
#![tactic(auto)]

mod find;
mod parse;
mod reader;
mod source;

pub use source::{Failure, Fault, FaultKind, ScriptSource, Span};
