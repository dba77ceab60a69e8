// Document 01's starred cases, worked out from the definitions. They stand in specs/; there is nothing to run.
#![tactic(auto)]
