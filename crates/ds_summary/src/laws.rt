//! The rules' names by their numbers. The function does nothing: its contract is the law.

ghost use Rattle.std.specs.Prelude.{◌≡◌, ◌-◌, [], get_or};
ghost use Rattle.ds_label.specs.declared.rule.Rule.{Rule};
ghost use Rattle.ds_label.specs.Rules.{rule_name, rule_number};
ghost use Rattle.ds_summary.specs.Summaries.{rule_names};

/// Each rule stands in a summary under its own name.
pub fn rules_have_their_names()
    ensures { (rule : Rule) → get_or rule_names (rule_number rule - 1) [] ≡ rule_name rule }
{}
