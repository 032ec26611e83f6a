// No code: the theorems about the first bad symbol of a scan.
