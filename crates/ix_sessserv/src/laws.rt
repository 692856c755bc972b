//! What holds of the server's definitions. These functions do nothing: each states a law, which is proved.

ghost use Rattle.std.specs.Prelude.{◌≡◌, ℕ, true, List, Some};
ghost use Rattle.ix_model.specs.declared.ids.Fd.{Fd};
ghost use Rattle.ix_policy.specs.{Deciding.{decide, numbered}, declared.{request.Request.{Request}, rule.Rule.{Rule}}};
ghost use Rattle.ix_asking.specs.serving.{Privately.{NotPrivateAtHalf}, Serving.{Server}};
ghost use Rattle.ix_sessserv.specs.{Messages.{user_in}, Requests.{IsRead}, Serving.{serves}, Worked.{GrantIsRefused}};

/// A user is read from a message exactly where the message asks for a session of that user. Of any other message the place that is
/// told is the length of its longest front that some request begins with.
pub fn messages_are_read()
    ensures { (message : List ℕ) → IsRead message (user_in message) }
{}

/// Under a first answer that fits a claim, `NotPrivate` comes of serving exactly where that answer is half a claim.
pub fn private_at_half()
    ensures { (rules : List Rule) (s : Server) (hand : Fd) → NotPrivateAtHalf s (serves rules s hand) }
{}

/// A rule that allows a request is there, and allows: the child's ceiling and its privileges are those of that rule.
pub fn allowing_rules_are_there()
    ensures { (rules : List Rule) (q : Request) → (decide rules q).allow ≡ true
        → (r : Rule) × (numbered rules (decide rules q).rule ≡ Some r) × (r.allow ≡ true) }
{}

/// One request, worked out.
pub fn worked()
    ensures { GrantIsRefused }
{}
