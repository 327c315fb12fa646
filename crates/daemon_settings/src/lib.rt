//! The daemon's configuration, `virtd.conf`, read.
#![tactic(auto)]

mod lines;
mod loading;
mod reading;
mod settings;

pub use loading::load_settings;
pub use reading::read_settings;
pub use settings::{BadLine, DEFAULT_SESSIONS, MOST_SESSIONS, Settings, SettingsFault};
