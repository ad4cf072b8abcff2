// Figures as whole numbers, and how far the result of a rounded operation lies from the exact one: laws for document 02, Ask 4, beside
// those of `ieee`. No code.

#![tactic(auto)]
