// The configuration's bytes, read.
ghost use Rattle.std.specs.Prelude.{◌≡◌, ◌≤◌, IfOk, IfSome, length};
ghost use Rattle.daemon_settings.specs.Lines.{IsCount, lines_of};
ghost use Rattle.daemon_settings.specs.Settings.{last_sessions, settings_in, wrong_in};

use crate::lines::{has_form, sessions_in};
use crate::settings::{BadLine, DEFAULT_SESSIONS, Settings};

// The place of the first line that is in no form.
fn first_wrong(bytes: &[u8]) -> Option<usize>
    ensures wrong { result ≡ wrong_in (lines_of bytes.now) }
    ensures within { IfSome result (λ place. place ≤ length bytes.now) }
{
    bytes
        .split(|byte| *byte == b'\n')
        .position(|line| !has_form(line))
}

// The number of sessions of the last line that gives one.
fn last_sessions(bytes: &[u8]) -> u32
    ensures last { result ≡ last_sessions (lines_of bytes.now) }
    ensures count { IsCount result }
{
    bytes
        .split(|byte| *byte == b'\n')
        .fold(DEFAULT_SESSIONS, |sessions, line| {
            sessions_in(line).unwrap_or(sessions)
        })
}

/// What the bytes of the configuration say: each line is empty, begins with `#`, or is `max_sessions = N` with N from
/// 1 to 64 without a leading zero; the last of these counts, and without any there may be 20 sessions. Else the first
/// line that is in no such form.
#[tactic(auto, unfolding(crate::specs::Settings::settings_in))]
pub fn read_settings(bytes: &[u8]) -> Result<Settings, BadLine>
    ensures settings { result ≡ settings_in bytes.now }
    ensures count { IfOk result (λ settings. IsCount settings.max_sessions) }
{
    match first_wrong(bytes) {
        Some(place) => Err(BadLine {
            line: place as u64 + 1,
        }),
        None => Ok(Settings {
            max_sessions: last_sessions(bytes),
        }),
    }
}
