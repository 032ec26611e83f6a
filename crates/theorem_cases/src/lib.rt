// No code: the cases (a) to (l) of docs/RULES.md, in one statement (specs/Cases.antt), and its proof.
