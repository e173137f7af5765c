//! The options that were given so far.
ghost use Rattle.std.specs.Prelude.{◌≡◌, List, [], Option, Some, None, MatchOption};
ghost use Rattle.command_line.specs.declared.setting.Setting.{Setting};
ghost use Rattle.command_line.specs.Settings.{before};
ghost use Rattle.command_line.specs.Gathered.{wish_after};
ghost use Rattle.command_line.specs.Wishes.{wish_in};

use crate::setting::Setting;
use crate::wish::{Form, OrderList, Wish};
use words::Capacity;

/// The values of the options that were given, each at most once.
#[derive(Drop)]
pub(crate) struct Gathered {
    pub(crate) order: Option<OrderList>,
    pub(crate) capacity: Option<Capacity>,
    pub(crate) form: Option<Form>,
    pub(crate) count: Option<u32>,
}

impl Gathered {
    /// No option.
    pub(crate) fn nothing() -> Gathered
        ensures { (settings : Option (List Setting)) → wish_after result settings ≡ wish_in settings }
    {
        Gathered {
            order: None,
            capacity: None,
            form: None,
            count: None,
        }
    }

    /// One option more, `None` where it was given already.
    pub(crate) fn with(self, setting: Setting) -> Option<Gathered>
        ensures { (settings : Option (List Setting)) → MatchOption result (wish_after self (before (Some setting) settings) ≡ Wish.Refused) (λ more. wish_after self (before (Some setting) settings) ≡ wish_after more settings) }
    {
        match setting {
            Setting::Order(order) if self.order.is_none() => Some(Gathered {
                order: Some(order),
                ..self
            }),
            Setting::Cache(capacity) if self.capacity.is_none() => Some(Gathered {
                capacity: Some(capacity),
                ..self
            }),
            Setting::Json if self.form.is_none() => Some(Gathered {
                form: Some(Form::Json),
                ..self
            }),
            Setting::Gen(count) if self.count.is_none() => Some(Gathered {
                count: Some(count),
                ..self
            }),
            _ => None,
        }
    }

    /// What the options wish, with no other.
    pub(crate) fn wish(self) -> Wish
        ensures { result ≡ wish_after self (Some []) }
    {
        let capacity = self.capacity.unwrap_or(Capacity::usual());
        let written = self.form.unwrap_or(Form::Text);
        match (self.count, self.order) {
            (Some(n), None) if self.form.is_none() => Wish::Gen { n, capacity },
            (Some(_), _) => Wish::Refused,
            (None, Some(order)) => Wish::Given {
                order,
                capacity,
                form: written,
            },
            (None, None) => Wish::Threads {
                capacity,
                form: written,
            },
        }
    }
}
