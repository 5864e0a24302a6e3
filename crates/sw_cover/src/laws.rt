//! The laws of classes.
ghost use Rattle.sw_cover.specs.Examples.{CountsAreTold};
ghost use Rattle.sw_cover.specs.Laws.{AllClassesCover, PartsAreClasses, EachClassOnce};

/// Every formula of a template's space is true in the same structures as some class's, and each
/// class's formula is of the space.
pub fn classes_cover()
    ensures { AllClassesCover }
{}

/// The parts together have exactly the classes, in their order.
pub fn parts_are_classes()
    ensures { PartsAreClasses }
{}

/// No class stands twice.
pub fn each_class_once()
    ensures { EachClassOnce }
{}

/// How many terms and atoms there are over some small signatures.
pub fn counts_are_told()
    ensures { CountsAreTold }
{}
