//! What holds of the server's definitions. These functions do nothing: each states a law, which is proved.

ghost use Rattle.std.specs.Prelude.{ℕ, List};
ghost use Rattle.ix_policy.specs.declared.rule.Rule.{Rule};
ghost use Rattle.ix_asking.specs.serving.{Privately.{NotPrivateAtHalf}, Serving.{Server}};
ghost use Rattle.ix_privserv.specs.{Messages.{wanted}, Requests.{IsRead}, Serving.{serves}, Worked.{WantsDown}};

/// A set is read from a message exactly where the message is a request for it. Of any other message the place that is told is the
/// length of its longest front that some request begins with.
pub fn messages_are_read()
    ensures { (message : List ℕ) → IsRead message (wanted message) }
{}

/// Under a first answer that fits a claim, `NotPrivate` comes of serving exactly where that answer is half a claim.
pub fn private_at_half()
    ensures { (rules : List Rule) (s : Server) → NotPrivateAtHalf s (serves rules s) }
{}

/// One request, worked out.
pub fn worked()
    ensures { WantsDown }
{}
