// No code: the theorems about what the error codes of a built track are read back as.
