// No code: the theorem that a sector of a built track is there once.
