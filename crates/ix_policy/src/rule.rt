ghost use Rattle.std.specs.Prelude.{◌≡◌, ◌+◌, ◌≤◌};
ghost use Rattle.ix_policy.specs.Deciding.{covers, is_grant, is_on_grant, is_on_session, is_session, matches};

use crate::request::Request;
use bitflags::Flags;
use ix_label::{Label, Steps};
use ix_model::{Name, PrivSet};
use std::sync::ledger::Ledger;

/// What a rule is on.
#[derive(Clone, Copy, Debug, PartialEq, Eq)]
pub enum Act {
    /// Grants of privileges.
    Grant,
    /// Sessions of users.
    Session,
}

/// A rule of a policy.
#[derive(Clone, Copy)]
pub struct Rule {
    pub act: Act,
    /// The one user whose sessions it is on; `None`, which is `*` in the text, stands for all. A rule on grants has `None`.
    pub user: Option<Name>,
    /// It matches requests whose label is at or below this one. A session that it allows gets it as its ceiling.
    pub clear: Label,
    /// A rule on grants matches what is within these; a session that the rule allows gets them as licences.
    pub privs: PrivSet,
    /// Whether it allows what it matches, or denies it.
    pub allow: bool,
}

impl Act {
    fn is_grant(self) -> bool
        ensures { result ≡ is_grant self }
    {
        match self {
            Act::Grant => true,
            Act::Session => false,
        }
    }

    fn is_session(self) -> bool
        ensures { result ≡ is_session self }
    {
        match self {
            Act::Grant => false,
            Act::Session => true,
        }
    }
}

impl Rule {
    /// Whether the rule matches the request. Where the label decides, that is one step.
    #[tactic(auto, unfolding(crate::specs::Deciding::matches))]
    pub(crate) fn matches<L: Ledger>(&self, request: &Request, steps: &mut Steps<L>) -> bool
        ensures matches { result ≡ matches self.now request.now }
        ensures looks { steps.old ≤ steps.new }
        ensures cost { steps.new ≤ steps.old + 1 }
    {
        match request {
            Request::Grant { label, want } => {
                self.is_on_grant(*want) && label.leq(&self.clear, steps)
            }
            Request::Session { user, label } => {
                self.is_on_session(user) && label.leq(&self.clear, steps)
            }
        }
    }

    /// Whether the rule is on grants, and what is wanted is within its privileges.
    #[tactic(auto, unfolding(ix_model::specs::world::Privs::has_all))]
    fn is_on_grant(&self, want: PrivSet) -> bool
        ensures { result ≡ is_on_grant self.now want }
    {
        self.act.is_grant() && self.privs.contains(want)
    }

    /// Whether the rule is on sessions of that user.
    fn is_on_session(&self, user: &Name) -> bool
        ensures { result ≡ is_on_session self.now user.now }
    {
        self.act.is_session() && self.covers(user)
    }

    /// Whether the user is the one that the rule names, if it names one.
    fn covers(&self, user: &Name) -> bool
        ensures { result ≡ covers self.now.user user.now }
    {
        match &self.user {
            None => true,
            Some(own) => own.as_ref().same(&user.as_ref()),
        }
    }
}
