//! The settings of the formatter, and what sets them: options, the keys of `.tocmark.toml`, and files of EditorConfig.
//!
//! The crate reads no file: texts and paths are values. A path goes from the root on, and has no links in it.
//!
//! Start at `Configuration` (`configuration`). It parses the text of a `.tocmark.toml`, and says the settings of a document and
//! which files are excluded. `editorconfig` parses the text of an `.editorconfig`. `keys` sets one option, and `settings` has
//! what all of them make. `error` says what is wrong in a text, and where.
//!
//! ```
//! let text = "bullet = \"-\"\nexclude = [\"old/\"]\n";
//! let configuration = Configuration::parse(alloc, text, "/site")?;
//! let path = "/site/docs/a.md";
//! let settings = configuration.settings_for(
//!     alloc,
//!     Document { path: Some(path), said: Said::NOTHING, is_of_site: false },
//! )?;
//! let is_excluded = configuration.exclude.cover(alloc, Entry::file(path))?;
//! ```
#![tactic(auto)]

mod configuration;
mod editorconfig;
mod error;
mod keys;
mod settings;

pub use configuration::{CONFIGURATION_FILE, Configuration, Document, SITE_FILE};
pub use editorconfig::{Asked, EDITORCONFIG_FILE, EditorConfig, Said};
pub use error::{ConfigError, Location};
pub use keys::{KEYS, Key, Setting, named, set, set_all};
pub use settings::{AlsoRead, COMMONMARK, Settings};
