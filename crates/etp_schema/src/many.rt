//! The forms of lists, maps, optional and boxed values.
use crate::few::Few;
use crate::typed::Typed;
use etp_values::{Boxed, List, Named, Shared};

impl<T: Typed> Typed for List<T> {
    ghost use Rattle.etp_schema.specs.Form.{list_form};

    ghost form = { list_form T.form };
}

impl<T: Typed> Typed for Few<T> {
    ghost use Rattle.etp_schema.specs.Form.{list_form};

    ghost form = { list_form T.form };
}

impl<T: Typed> Typed for Named<T> {
    ghost use Rattle.etp_schema.specs.Form.{named_form};

    ghost form = { named_form T.form };
}

impl<T: Typed> Typed for Option<T> {
    ghost use Rattle.etp_schema.specs.Form.{option_form};

    ghost form = { option_form T.form };
}

impl<T: Typed> Typed for Boxed<T> {
    ghost form = { T.form };
}

impl<T: Typed> Typed for Shared<T> {
    ghost form = { T.form };
}
