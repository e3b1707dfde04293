//! Laws on what a section describes.
ghost use Rattle.section_lines.specs.RowLaws.{RowsHaveBoxes};

/// Each row that a section describes is of the kind of the box on its shelf.
#[tactic(auto, using(crate::proofs::RowsHaveBoxesLemmas::rows_have_boxes))]
pub fn rows_have_boxes()
    ensures { RowsHaveBoxes }
{}
