// No code: the theorems about what clearing does.
