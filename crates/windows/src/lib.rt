// Why a quoted response holds: supply and demand over one guest, as an invariant of numbers. No code.
#![tactic(auto)]
