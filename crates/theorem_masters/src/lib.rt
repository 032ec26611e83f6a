// No code: the theorems about the master of a D64.
