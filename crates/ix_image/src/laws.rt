//! What holds of images. These functions do nothing: each states a law, which is proved.
ghost use Rattle.ix_image.specs.Laws.{FaultlessAreImages, ImagesAreOneToOne, LabelsAreTheirBytes, WrittenIsRead};

/// A label is given back by its 64 bytes, and 64 bytes by the label that they are of.
pub fn labels_are_their_bytes()
    ensures same { LabelsAreTheirBytes }
{}

/// Bytes have no fault exactly where they are the image of a tree that meets all rules.
pub fn faultless_are_images()
    ensures images { FaultlessAreImages }
{}

/// What is written of a tree that meets all rules is read as the same tree.
pub fn written_is_read()
    ensures read { WrittenIsRead }
{}

/// Two trees that meet all rules and have one image are equal.
pub fn images_are_one_to_one()
    ensures one { ImagesAreOneToOne }
{}
