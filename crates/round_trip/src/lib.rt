// No code: the sheet of an image and the image of a sheet, each of which undoes the other, as theorems over their definitions.
#![tactic(auto)]
