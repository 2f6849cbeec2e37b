// No code: of tables that are kept and judged, the rows that a row points to are those that its verdict speaks of.
#![tactic(auto)]
