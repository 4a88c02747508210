// Laws of inputs and answers. The functions only cite the laws that they follow from.
ghost use Rattle.generate.specs.Laws.{InputsAreVariables, OneGenerated};

use witness_lift::model_lines_are_laid_out;

/// Proves that the lines of an accepted model have one input for each variable of the flat system that they lay
/// out.
pub fn inputs_are_variables()
    ensures { InputsAreVariables }
{
    model_lines_are_laid_out();
}

/// Proves that the generated texts for a number of cells define one answer.
pub fn one_generated()
    ensures { OneGenerated }
{
    model_lines_are_laid_out();
}
