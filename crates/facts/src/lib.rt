// General facts about lists, tables, numbers and results, with no code: what they are said with in specs/, the facts in proofs/.
#![tactic(auto)]
