//! Laws of policies. These functions do nothing: each states a law, which is proved.
ghost use Rattle.ix_policing.specs.{Differing.{DifferencesAreOfRules, RulesThatDifferHaveOne}, Granting.{GrantsAreListed}, Spelled.{ReadIsSpelled}};

/// The difference of two rules is on a request that they decide, each in its policy, and that is sought; the rulings are those on it.
pub fn differences_are_of_rules()
    ensures law { DifferencesAreOfRules }
{}

/// The rules that decide a request which is sought have a difference, and the request is within it.
pub fn rules_that_differ_have_one()
    ensures law { RulesThatDifferHaveOne }
{}

/// Whoever is granted privileges is at or below the greatest label at which some rule grants them.
#[tactic(auto, using(crate::proofs::Widest::listed))]
pub fn grants_are_listed()
    ensures law { GrantsAreListed }
{}

/// The rules of a policy that was read have labels with a text in its form, and users with names of scripts.
pub fn read_policies_are_spelled()
    ensures law { ReadIsSpelled }
{}
