//! Hosts, as example.org.

ghost use Rattle.std.specs.Prelude.{◌≡◌};
ghost use Rattle.tocmark_bare_links.specs.Addresses.{host_step, is_host, is_label, may_follow};

/// What is known of the front of a host.
#[derive(Clone, Copy)]
pub struct Host {
    /// The bytes of its last label so far.
    pub length: usize,
    /// Whether the last byte was a hyphen.
    pub hyphen: bool,
    /// Whether there was a dot.
    pub dotted: bool,
    /// Whether all is well so far.
    pub fine: bool,
}

impl Host {
    /// Whether a label may end here.
    #[tactic(auto, unfolding(crate::specs::Addresses::is_label))]
    fn is_label(self) -> bool
        ensures { result ≡ is_label self }
    {
        self.fine && 1 <= self.length && !self.hyphen
    }

    /// One byte further.
    #[tactic(auto, unfolding(crate::specs::Addresses::host_step))]
    fn after(self, byte: u8) -> Host
        ensures { result ≡ host_step self byte }
    {
        if byte == b'.' {
            Host {
                length: 0,
                hyphen: false,
                dotted: true,
                fine: self.is_label(),
            }
        } else {
            Host {
                length: self.length.saturating_add(1),
                hyphen: byte == b'-',
                dotted: self.dotted,
                fine: self.fine && !(self.length == 0 && byte == b'-'),
            }
        }
    }
}

/// Whether bytes are labels with dots between: two at least, or one alone, if that is enough.
#[tactic(auto, unfolding(crate::specs::Addresses::is_host))]
pub(crate) fn is_host(is_short: bool, text: &[u8]) -> bool
    ensures { result ≡ is_host is_short text.now }
{
    let mut host = Host {
        length: 0,
        hyphen: false,
        dotted: false,
        fine: true,
    };
    for byte in text {
        host = host.after(*byte);
    }
    host.is_label() && (is_short || host.dotted)
}

/// Whether a byte may come after a host. Programs disagree on a `_`, a backslash, and letters past ASCII.
#[tactic(auto, unfolding(crate::specs::Addresses::may_follow))]
pub(crate) fn may_follow(byte: u8) -> bool
    ensures { result ≡ may_follow byte }
{
    byte < 128 && byte != b'_' && byte != b'\\'
}
