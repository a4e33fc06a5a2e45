//! The rules by which a line is written in this language.

ghost use Rattle.std.specs.Prelude.{◌≡◌};
ghost use Rattle.gw_convert.specs.Rules.{mark_of};

/// A rule.
#[derive(Clone, Copy, PartialEq, Eq)]
pub(crate) enum Rule {
    /// A comment gets its `;`.
    Comment,
    /// An abbreviated word is written whole.
    Word,
    /// A time is multiplied by the factor of the model.
    Scale,
    /// END is left out.
    End,
    /// Several values of an INITIAL get a line each.
    Initial,
    /// START has its count alone.
    Start,
    /// MP is written as an expression.
    Transit,
    /// A QTABLE becomes a TABLE of the time since a MARK.
    QueueTable,
    /// A time that is multiplied by a function becomes a function of the products.
    Multiple,
    /// A source whose times may be 0 gets a limit that is never met.
    Limit,
    /// A FUNCTION of type C goes by steps.
    Steps,
    /// An exponential distribution goes by steps.
    Exponential,
    /// A normal distribution goes by steps.
    Normal,
    /// A triangular distribution goes by steps.
    Triangular,
    /// A time that can't be followed is left.
    Time,
    /// A run before the last one is left out.
    Run,
    /// A form is left as it is.
    Form,
}

/// All rules, in the order in which they are told.
pub(crate) const RULES: [Rule; 17] = [
    Rule::Comment,
    Rule::Word,
    Rule::Scale,
    Rule::End,
    Rule::Initial,
    Rule::Start,
    Rule::Transit,
    Rule::QueueTable,
    Rule::Multiple,
    Rule::Limit,
    Rule::Steps,
    Rule::Exponential,
    Rule::Normal,
    Rule::Triangular,
    Rule::Time,
    Rule::Run,
    Rule::Form,
];

impl Rule {
    /// What the comment begins with that it has before its line: `; NEAR: ` where it keeps nearly what a model says, `; LEFT: ` where it
    /// leaves a line as it is, and nothing where it keeps all.
    pub(crate) fn mark(self) -> &'static str
        ensures { result.now ≡ mark_of self }
    {
        match self {
            Rule::Steps | Rule::Exponential | Rule::Normal | Rule::Triangular => "; NEAR: ",
            Rule::Time | Rule::Run | Rule::Form => "; LEFT: ",
            _ => "",
        }
    }

    /// What is told of it at the head of the text.
    pub(crate) fn title(self) -> &'static str {
        match self {
            Rule::Comment => "a comment has its `;`",
            Rule::Word => "a word is written whole",
            Rule::Scale => "a time is multiplied",
            Rule::End => "END is left out",
            Rule::Initial => "an INITIAL has a line for each value",
            Rule::Start => "START has its count alone",
            Rule::Transit => "MP is the clock less the parameter",
            Rule::QueueTable =>
                "a QTABLE is a MARK, a TABLE of the time since then, and a TABULATE",
            Rule::Multiple => "a mean times a function is a function of the times",
            Rule::Limit => "a source whose times may be 0 has a limit that is never met",
            Rule::Steps => "a FUNCTION of type C by steps",
            Rule::Exponential => "Exponential by 100 steps",
            Rule::Normal => "Normal by 100 steps",
            Rule::Triangular => "Triangular by 100 steps",
            Rule::Time => "a time that has to be multiplied by hand",
            Rule::Run => "RESET, CLEAR and runs before the last one",
            Rule::Form => "a form that this language hasn't",
        }
    }

    /// What is told of it beside a line: what it costs, or what to do.
    pub(crate) fn advice(self) -> &'static str {
        match self {
            Rule::Steps =>
                "a FUNCTION of type C goes by steps, each with the mean of its part: all means are kept, a little of the variance is lost",
            Rule::Exponential =>
                "Exponential by 100 steps: the mean is kept, the variance is 0.9995 of it, and no draw is above 10.2 means",
            Rule::Normal =>
                "Normal by 100 steps: the mean is kept, the variance is 0.9997 of it, no draw is more than 4 deviations away, and none is below 0",
            Rule::Triangular =>
                "Triangular by 100 steps: the mean is kept, and all but a ten-thousandth of the variance",
            Rule::Time =>
                "this time can't be followed: multiply it by hand by the factor in the first line, where it is made",
            Rule::Run =>
                "each run begins empty: planner study MODEL RUNS COUNT makes many runs, and --from W leaves out what came before W terminations",
            _ => "",
        }
    }
}

/// How often each rule was used, in the order of the rules.
#[derive(Drop)]
pub(crate) struct Uses {
    counts: [usize; 17],
}

impl Uses {
    /// No rule was used.
    pub(crate) fn new() -> Uses {
        Uses { counts: [0; 17] }
    }

    /// How often a rule was used.
    pub(crate) fn count(&self, rule: Rule) -> usize {
        match RULES.iter().position(|it| *it == rule) {
            Some(place) => self.counts.get(place).copied().unwrap_or(0),
            None => 0,
        }
    }

    /// A rule was used.
    pub(crate) fn note(&mut self, rule: Rule) {
        if let Some(place) = RULES.iter().position(|it| *it == rule)
            && let Some(count) = self.counts.get_mut(place)
        {
            *count = count.saturating_add(1);
        }
    }
}
