// No code: the outlines of a block's faces, and what the triangles of its mesh have of them.
#![tactic(auto)]
