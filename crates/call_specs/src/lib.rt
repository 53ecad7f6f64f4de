// No code: the definitions that the contracts of the exported functions cite (specs/), and the laws by which a step on a record meets them (proofs/).
