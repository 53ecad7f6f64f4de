#![tactic(auto)]

// No code: the cases that document 01 works by hand (specs/Worked.antt) and the trap sheet of setup's frames (specs/TrapSheet.antt) are theorems about the definitions.
