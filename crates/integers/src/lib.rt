// Laws of the integers, in specs/. There is no code.
#![tactic(auto)]
