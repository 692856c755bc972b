ghost use Rattle.std.specs.Prelude.{◌≡◌, ◌≤◌, length};
ghost use Rattle.ix_asking.specs.serving.Messages.{longest_front};

/// The requests to a server.
pub trait Requests {
    ghost use Rattle.std.specs.Prelude.{ℕ, Bool, List};

    /// The test whether some request begins with a text.
    ghost begins: { List ℕ → Bool };

    /// Whether some request begins with the text.
    fn is_begun(text: &[u8]) -> bool
        ensures { result ≡ begins text.now };
}

/// How many bytes the longest front of the message has that some request begins with.
pub fn bad_at<R: Requests>(message: &[u8]) -> u32
    requires { length message.now ≤ 4096 }
    ensures { result ≡ longest_front R.begins message.now }
{
    let mut at = message.len();
    'fronts: while at > 0 && !R::is_begun(&message[..at]) {
        at -= 1;
    }
    at as u32
}
