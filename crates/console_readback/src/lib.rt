// No code: laws of the lines of a console. Each request is asked for by a line, numbers and octets read back as they are printed, and a word of a
// line that is read is made of digits and lower-case letters alone.

#![tactic(auto)]
