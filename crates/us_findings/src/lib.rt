//! What is wrong in a configuration or a trace: findings with their lines, and where keys and rows stand in their texts.
//!
//! ```
//! match lint_config(alloc, text)? {
//!     Ok(config) => {}    // no error
//!     Err(findings) => {} // the fault that `Config::read` answers, and all others of the shapes of tables
//! }
//! match lint_trace(alloc, text, &mut seer)? {
//!     None => {}           // no error, and `seer` was shown all requests
//!     Some(findings) => {} // the fault that `Trace::read` answers, then those of other rows
//! }
//! let spots = spots_of(alloc, text, &wanted)?; // where each of these keys stands, in bytes
//! ```
//!
//! The reader of TOML answers values, and no places. So a walk over the text finds them, with that library's own readers
//! of keys and strings. Of a key that the walk doesn't meet, the place is that of its table.
//!
//! What these words mean stands in `specs/`, in the order of its `Lib.antt`.
// An attribute of a function's own says what its proof needs beside: `using` names lemmas.
#![tactic(auto)]

// A finding, and how it is written.
mod findings;

// Texts of the input, cut and escaped.
mod shown;

// Words with numbers among them.
mod sentences;

// Lines and columns.
mod lines;

// What is looked for in a configuration, and where it stands.
mod spots;

// Keys and values, read from the front of a text.
mod tokens;

// Tables in which something is looked for.
mod scopes;

// The walk over headers and keys.
mod walks;

// What a finding calls a table.
mod titles;

// Tables of a document, and their values.
mod documents;

// What is wanted of a value, and what of it is wrong.
mod values;

// The keys that a table may have.
mod keys;

// What helps with a key that a table can't have.
mod hints;

// A finding whose line isn't known yet.
mod drafts;

// Such findings, of which the first ones are kept.
mod lists;

// Keys and values of one table.
mod shapes;

// The shapes of all tables.
mod tables;

// Why a table breaks a rule of several keys or tables: its names,
mod names;

// its grants,
mod grants;

// and all such rules.
mod rules;

// Lines of findings.
mod located;

// Why a text is no document.
mod texts;

// The errors of a configuration.
mod config_errors;

// The records of a trace, with their lines.
mod rows;

// What is wrong with one record, in words.
mod row_errors;

// Who is shown the requests.
mod seeing;

// The errors of a trace.
mod trace_errors;

pub use config_errors::lint_config;
pub use findings::{Finding, Findings, Source, What, by_place};
pub use lines::line_and_column;
pub use rows::Rows;
pub use seeing::SeesRequests;
pub use sentences::Sentence;
pub use shown::Shown;
pub use spots::{KeyPath, Spot};
pub use texts::too_long_config;
pub use titles::table_words;
pub use trace_errors::{lint_trace, too_long_trace};
pub use walks::spots_of;
