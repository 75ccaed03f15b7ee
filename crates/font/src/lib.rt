// The built-in font: its definition, and that its glyphs have five columns. No code.
#![tactic(auto)]
