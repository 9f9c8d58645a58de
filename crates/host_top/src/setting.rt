//! The words of a command that set something of a run.
ghost use Rattle.std.specs.Prelude.{◌≡◌, ◌∷◌, [], ◌++◌, ℕ, Bool, List, map, string_bytes, IfSome, IfNone};
ghost use Rattle.host_top.specs.Setting.{IsMtuWord, nak_word, SpellsSetting, IsNewKey, Say, Sets};

use crate::word::{number_of, u32_of};

/// What one word sets.
#[derive(Clone, Copy, Debug, PartialEq, Eq)]
pub enum Setting {
    /// The longest IPv4 datagram of the link, in bytes.
    Mtu(u16),
    /// The longest lease, in seconds.
    Lease(u32),
    /// Whether refusals of servers are ignored.
    IgnoreNaks(bool),
}

/// What the words of a run set; `None` where no word has the key.
#[derive(Clone, Copy, Debug, PartialEq, Eq)]
pub struct RunSettings {
    /// The longest IPv4 datagram of the link, in bytes.
    pub ip_mtu: Option<u16>,
    /// The longest lease, in seconds.
    pub max_lease_secs: Option<u32>,
    /// Whether refusals of servers are ignored.
    pub ignore_naks: Option<bool>,
}

/// What the words set.
pub fn settings_of(words: &[String]) -> Option<RunSettings>
    ensures found { IfSome result (Sets (map string_bytes words.now)) }
    ensures refuses { IfNone result ((said : RunSettings) → Sets (map string_bytes words.now) said → ⊥) }
{
    let mut said = RunSettings {
        ip_mtu: None,
        max_lease_secs: None,
        ignore_naks: None,
    };
    for word in words {
        let setting = setting_of(word.as_bytes())?;
        said = said.with(setting)?;
    }
    Some(said)
}

impl RunSettings {
    /// Nothing is set.
    pub const NONE: RunSettings = RunSettings {
        ip_mtu: None,
        max_lease_secs: None,
        ignore_naks: None,
    };

    /// What is said with one setting more: nothing where its key has a value already.
    fn with(self, setting: Setting) -> Option<RunSettings>
        ensures found { IfSome result (λ said. (settings : List Setting) → Say settings self
            → IsNewKey settings setting × Say (settings ++ setting ∷ []) said) }
        ensures refuses { IfNone result ((settings : List Setting) → Say settings self
            → IsNewKey settings setting → ⊥) }
    {
        let mut said = self;
        match setting {
            Setting::Mtu(bytes) if self.ip_mtu.is_none() => said.ip_mtu = Some(bytes),
            Setting::Lease(secs) if self.max_lease_secs.is_none() => {
                said.max_lease_secs = Some(secs);
            }
            Setting::IgnoreNaks(ignored) if self.ignore_naks.is_none() => {
                said.ignore_naks = Some(ignored);
            }
            _ => return None,
        }
        Some(said)
    }
}

/// The setting that a word spells.
fn setting_of(word: &[u8]) -> Option<Setting>
    ensures found { IfSome result (SpellsSetting word.now) }
    ensures refuses { IfNone result ((setting : Setting) → SpellsSetting word.now setting → ⊥) }
{
    if let Some(value) = word.strip_prefix(b"mtu=") {
        return Some(Setting::Mtu(mtu_of(value)?));
    }
    if let Some(value) = word.strip_prefix(b"lease=") {
        return Some(Setting::Lease(u32_of(value)?));
    }
    if let Some(value) = word.strip_prefix(b"naks=") {
        return Some(Setting::IgnoreNaks(nak_rule_of(value)?));
    }
    None
}

/// The MTU that a word writes, in bytes.
fn mtu_of(word: &[u8]) -> Option<u16>
    ensures found { IfSome result (IsMtuWord word.now) }
    ensures refuses { IfNone result ((bytes : ℕ) → IsMtuWord word.now bytes → ⊥) }
{
    let number = number_of(word, 10, 4)?;
    if number < 576 || number > 1500 {
        return None;
    }
    Some(number as u16)
}

/// Whether a word says that refusals are ignored.
fn nak_rule_of(word: &[u8]) -> Option<bool>
    ensures found { IfSome result (λ ignored. word.now ≡ nak_word ignored) }
    ensures refuses { IfNone result ((ignored : Bool) → word.now ≡ nak_word ignored → ⊥) }
{
    match word {
        b"ignore" => Some(true),
        b"obey" => Some(false),
        _ => None,
    }
}
